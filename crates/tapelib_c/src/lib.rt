// The check of a tape, exported for programs in other languages.
#![tactic(auto)]

ghost use Rattle.std.specs.Prelude.{◌≡◌, is_ok};
ghost use Rattle.tape.specs.Bytes.{read_tape};
ghost use Rattle.tapelib.specs.Check.{place_after};

// Whether the tape is whole; where it is torn, `place` is set to where. C has no Option.
#[unsafe(no_mangle)]
pub extern "C" fn tape_is_whole(bytes: &[u8], place: &mut usize) -> bool
    ensures answer { result ≡ is_ok (read_tape bytes.now) }
    ensures after { place.new ≡ place_after (read_tape bytes.now) place.old }
{
    tapelib::tape_is_whole(bytes, place)
}
