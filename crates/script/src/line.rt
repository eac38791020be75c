// The lines of a script. Every line ends in byte 10.
ghost use Rattle.std.specs.Prelude.{◌≡◌, ◌==◌, ◌<◌, ◌≤◌, [], length, drop, MatchOption, position};
ghost use Rattle.script.specs.Lines.{LineAt, lines_of};

// One line: the part of the script that it is, where it starts, and where the next one does.
#[derive(Clone, Copy)]
pub struct Line<'a> {
    pub text: &'a [u8],
    pub start: usize,
    pub next: usize,
}

// How long the first line of these bytes is, where it ends.
fn line_len(bytes: &[u8]) -> Option<usize>
    ensures { result ≡ position (λ b. b == 10) bytes.now }
{
    bytes.iter().position(|byte| *byte == b'\n')
}

// The line that starts there, where one does that ends.
#[tactic(auto, using(crate::proofs::LineFacts::no_line_from))]
pub fn next_line(script: &[u8], start: usize) -> Option<Line<'_>>
    ensures { MatchOption result ((lines_of (drop start script.now)).whole ≡ []) (λ line. (line.start ≡ start) × LineAt script.now start line.text.now line.next) }
{
    let rest = script.get(start..)?;
    let len = line_len(rest)?;
    Some(Line {
        text: &rest[..len],
        start,
        next: start + len + 1,
    })
}
