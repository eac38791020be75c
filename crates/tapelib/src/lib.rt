// The check of a tape, for programs in other languages: the crate `tapelib_c` exports it.
#![tactic(auto)]

ghost use Rattle.std.specs.Prelude.{◌≡◌, is_ok};
ghost use Rattle.std.specs.Result.{result_err};
ghost use Rattle.tape.specs.Bytes.{read_tape};
ghost use Rattle.tapelib.specs.Check.{place_after};

use tape::Tape;

// Where the tape is torn, if it is.
pub fn torn_at(bytes: &[u8]) -> Option<usize>
    ensures { result ≡ result_err (read_tape bytes.now) }
{
    Tape::from_bytes(bytes).err()?.place()
}

// Whether the tape is whole; where it is torn, `place` is set to where.
// A flag and a number, since the C interface has no Option.
pub fn tape_is_whole(bytes: &[u8], place: &mut usize) -> bool
    ensures answer { result ≡ is_ok (read_tape bytes.now) }
    ensures after { place.new ≡ place_after (read_tape bytes.now) place.old }
{
    match torn_at(bytes) {
        None => true,
        Some(torn) => {
            *place = torn;
            false
        }
    }
}
