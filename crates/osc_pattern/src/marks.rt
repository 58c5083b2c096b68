// At which places of a name each byte stands.
ghost use Rattle.osc_pattern.specs.declared.limits.TheConstants.{MAX_NAME};
ghost use Rattle.std.specs.Prelude.{◌≤◌, length};
ghost use Rattle.osc_pattern.specs.Views.{AreMarks};

/// For each byte, the places of the name that stand right before it, as the bits of a number.
pub(crate) fn marks_of(name: &[u8]) -> [u64; 256]
    requires { length name.now ≤ MAX_NAME }
    ensures { AreMarks result name.now }
{
    let mut marks = [0; 256];
    for place in 0..name.len() {
        marks[name[place] as usize] |= 1 << place;
    }
    marks
}
