// What a file says besides its rules.
#[derive(Clone, Copy)]
pub struct Header {
    pub facts: u16,
    pub target: u16,
}
