/// What became of connections to backends so far, where they are kept.
#[derive(Clone, Copy, PartialEq, Eq, Debug)]
pub struct KeptFigures {
    /// How many were opened.
    pub opened: u64,
    /// How often a request went over one that was kept.
    pub used: u64,
    /// How many were closed while they were kept, as their time was over.
    pub expired: u64,
    /// How many were closed while they were kept, as their backends had ended them.
    pub ended: u64,
    /// How many were closed while they were kept, as bytes came that nobody had asked for.
    pub unasked: u64,
    /// How many were closed while they were kept, since their places were needed.
    pub displaced: u64,
}

impl KeptFigures {
    /// None was opened yet.
    pub fn new() -> KeptFigures {
        KeptFigures {
            opened: 0,
            used: 0,
            expired: 0,
            ended: 0,
            unasked: 0,
            displaced: 0,
        }
    }

    /// These and those together.
    pub fn plus(&self, more: &KeptFigures) -> KeptFigures {
        KeptFigures {
            opened: self.opened.saturating_add(more.opened),
            used: self.used.saturating_add(more.used),
            expired: self.expired.saturating_add(more.expired),
            ended: self.ended.saturating_add(more.ended),
            unasked: self.unasked.saturating_add(more.unasked),
            displaced: self.displaced.saturating_add(more.displaced),
        }
    }
}
