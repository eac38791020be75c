// The first line of a script: how many ledgers take part, and how they vote.
ghost use Rattle.std.specs.Prelude.{◌≡◌, ◌≤◌, length, map, take, cond, Some, None, IfSome};
ghost use Rattle.script.specs.First.{all_votes, first_fields, first_of, is_vote, read_first, vote_letters, vote_number};
ghost use Rattle.std.specs.Option.{option_map};

// With plain places, since a vector of the library's is no `Copy`.
#[derive(Clone, Copy)]
pub struct FirstLine {
    pub ledgers: u8,
    // As numbers, one for each ledger: an opening takes them so, and refuses a wrong one.
    // The places behind them stand for nobody.
    pub votes: [u8; 9],
}

// The number of a vote's letter, as a script has it.
fn vote_number(letter: u8) -> Option<u8>
    ensures { result ≡ cond (is_vote letter) (Some (vote_number letter)) None }
{
    match letter {
        b'Y' => Some(1),
        b'N' => Some(2),
        _ => None,
    }
}

fn read_votes(letters: &[u8]) -> Option<[u8; 9]>
    requires { length letters.now ≤ 9 }
    ensures { option_map (take (length letters.now)) result ≡ cond (all_votes letters.now) (Some (map vote_number letters.now)) None }
{
    let mut votes = [0; 9];
    for (place, letter) in letters.iter().enumerate() {
        votes[place] = vote_number(*letter)?;
    }
    Some(votes)
}

fn vote_letters(ledgers: u8, letters: &[u8]) -> Option<FirstLine>
    requires { ledgers ≤ 9 }
    ensures value { option_map first_of result ≡ vote_letters ledgers letters.now }
    ensures few { IfSome result (λ first. first.ledgers ≤ 9) }
{
    if letters.len() != ledgers as usize {
        return None;
    }
    let votes = read_votes(letters)?;
    Some(FirstLine { ledgers, votes })
}

fn first_fields(fields: &[u8]) -> Option<FirstLine>
    ensures value { option_map first_of result ≡ first_fields fields.now }
    ensures few { IfSome result (λ first. first.ledgers ≤ 9) }
{
    match fields {
        [b' ', n @ b'1'..=b'9', b' ', letters @ ..] => vote_letters(*n - b'0', letters),
        _ => None,
    }
}

// What the first line tells, where it is one.
pub fn read_first(line: &[u8]) -> Option<FirstLine>
    ensures value { option_map first_of result ≡ read_first line.now }
    ensures few { IfSome result (λ first. first.ledgers ≤ 9) }
{
    let [letter, fields @ ..] = line else {
        return None;
    };
    match *letter as char {
        'F' => first_fields(fields),
        _ => None,
    }
}
