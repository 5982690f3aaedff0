ghost use Rattle.std.specs.Prelude.{◌≡◌};
ghost use Rattle.code_text.specs.Lines.{header_of};

use threadlet_code::FuncCode;

/// What the first line of a function tells: all but its instructions, of which it tells how many there are.
#[derive(Clone, Copy, Debug)]
pub struct Header {
    pub params: u32,
    pub slots: u32,
    pub height: u32,
    pub spawns: bool,
    pub length: u64,
}

impl Header {
    /// The header of a function.
    pub fn of(f: &FuncCode) -> Header
        ensures { result ≡ header_of f.now }
    {
        Header {
            params: f.params,
            slots: f.slots,
            height: f.height,
            spawns: f.spawns,
            length: f.body.len() as u64,
        }
    }
}
