/// A place in a description file.
///
/// `byte` counts bytes from 0. `line` and `column` count from 1, and a column counts characters,
/// so a place is told as an editor shows it.
#[derive(Clone, Copy, Debug, PartialEq, Eq)]
pub struct At {
    pub byte: u32,
    pub line: u32,
    pub column: u32,
}
