ghost use Rattle.std.specs.Prelude.{◌≡◌, IsTrue};
ghost use Rattle.threadlet_code.specs.Breaches.{is_sound, all_heights, height_at};
ghost use Rattle.threadlet_code.specs.Verdict.{IsShort};

use crate::code::Code;
use word_ops::List;

/// Code that keeps all rules (docs/machine.md, "Rules of code"), with the stack height before each place.
#[derive(Debug, Drop)]
pub struct Verified {
    pub code: Code,
    heights: List<List<Option<u32>>>,
    pub ghost sound: { IsTrue (is_sound code) },
    pub ghost short: { IsShort code },
    ghost labelled: { heights ≡ all_heights code },
}

impl Verified {
    /// Code that was judged, with its heights.
    pub(crate) fn new(code: Code, heights: List<List<Option<u32>>>) -> Verified
        requires sound { IsTrue (is_sound code) }
        requires short { IsShort code }
        requires heights { heights ≡ all_heights code }
        ensures { result.code ≡ code }
    {
        Verified { code, heights }
    }

    /// The code.
    pub fn code(&self) -> &Code
        ensures code { result.now ≡ self.now.code }
        ensures sound { IsTrue (is_sound result.now) }
        ensures short { IsShort result.now }
    {
        &self.code
    }

    /// The stack height before a place; None exactly where no way leads there (docs/machine.md, "Rules of
    /// code").
    pub fn height(&self, function: u32, place: u32) -> Option<u32>
        ensures { result ≡ height_at self.now.code function place }
    {
        match self.heights.as_slice().get(function as usize) {
            None => None,
            Some(heights) => match heights.as_slice().get(place as usize) {
                None => None,
                Some(height) => *height,
            },
        }
    }
}
