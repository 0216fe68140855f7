//! The standard's names of the opcodes that are left out.

ghost use Rattle.std.specs.Prelude.{◌≡◌};
ghost use Rattle.zcode.specs.Names.{excluded_name};

use crate::opcode::Excluded;

impl Excluded {
    /// The standard's name of it, as `set_window` (Z 14).
    pub fn name(self) -> &'static str
        ensures { result.now ≡ excluded_name self }
    {
        match self {
            Excluded::SplitWindow => "split_window",
            Excluded::SetWindow => "set_window",
            Excluded::OutputStream => "output_stream",
            Excluded::InputStream => "input_stream",
            Excluded::SoundEffect => "sound_effect",
        }
    }
}
