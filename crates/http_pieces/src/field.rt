/// What a head says under one field name (RFC 9110, section 5).
#[derive(Clone, Copy, Debug)]
pub enum Field<'a> {
    /// No field has the name.
    None,
    /// One field has it, with this value, whose blanks at both ends are taken off.
    One(&'a [u8]),
    /// More than one field has it.
    Many,
}
