ghost use Rattle.std.specs.Prelude.{◌≡◌, nat_eq};
ghost use Rattle.std.specs.Cmp.Lexicographic.{pointwise, nat_list_eq_equiv};
ghost use Rattle.std.specs.Cmp.{partial_equiv_from_equiv};
ghost use Rattle.std.proofs.lemmas.Cmp.{lists_equiv};

use http_pieces::Text;
use std::marker::Model;

/// Names of fields, in order. Contracts see the list of them.
#[derive(Debug, Drop)]
pub struct FieldNames {
    names: Vec<Text>,
}

impl Model for FieldNames {
    ghost use Rattle.std.specs.Prelude.{ℕ, List};

    ghost Value = { List (List ℕ) };

    ghost view = { λ f. f.names.items };
}

impl FieldNames {
    /// These names, with no copy.
    pub fn from_vec(names: Vec<Text>) -> FieldNames
        ensures { result ≡ names.items }
    {
        FieldNames { names }
    }

    /// The names.
    pub fn as_slice(&self) -> &[Text]
        ensures { result.now ≡ self.now }
    {
        self.names.as_slice()
    }
}

impl PartialEq for FieldNames {
    ghost eq = { pointwise (pointwise nat_eq) };

    ghost laws = { partial_equiv_from_equiv (lists_equiv nat_list_eq_equiv) };

    fn eq(&self, other: &Self) -> bool {
        self.names == other.names
    }
}

impl Eq for FieldNames {
    ghost laws = { lists_equiv nat_list_eq_equiv };
}
