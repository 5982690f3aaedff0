/// What is declared: a word, an address, nothing, or main's result (docs/language.md, "Kinds").
#[derive(Clone, Copy, PartialEq, Eq, Debug)]
pub enum Kind {
    Long,
    Ptr,
    Void,
    Int,
}
