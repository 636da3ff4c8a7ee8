// Pieces, numbers and lines, put into the text at a position. Each call answers the position after what it put. No format and no String: the text is
// a buffer of the caller's, since there is no heap, and `printed` says each byte of it.
ghost use Rattle.std.specs.Prelude.{◌≡◌, ◌++◌, ◌+◌, ◌*◌, ◌≤◌, length, take};
ghost use Rattle.report.specs.Inner.Room.{most_digits, after_word, most_service};
ghost use Rattle.report.specs.Text.{decimal, line, service_lines};

// The most digits of a number.
const DIGITS: usize = 20;

fn put(text: &mut [u8], at: usize, piece: &[u8]) -> usize
    requires { at + length piece.now ≤ length text.old }
    ensures position { result ≡ at + length piece.now }
    ensures text { take result text.new ≡ take at text.old ++ piece.now }
{
    let end = at + piece.len();
    text[at..end].copy_from_slice(piece);
    end
}

fn put_number(text: &mut [u8], at: usize, n: u64) -> usize
    requires { at + most_digits ≤ length text.old }
    ensures position { result ≤ at + most_digits }
    ensures text { take result text.new ≡ take at text.old ++ decimal n }
{
    let mut digits = [0u8; DIGITS];
    let k = io::decimal(n, &mut digits);
    put(text, at, &digits[..k])
}

pub(crate) fn put_line(text: &mut [u8], at: usize, word: &[u8], n: u64) -> usize
    requires { at + length word.now + after_word ≤ length text.old }
    ensures position { result ≤ at + length word.now + after_word }
    ensures text { take result text.new ≡ take at text.old ++ line word.now n }
{
    let space = put(text, at, word);
    let number = put(text, space, b" ");
    let end = put_number(text, number, n);
    put(text, end, b"\n")
}

fn put_service(text: &mut [u8], at: usize, i: u64, c: u64) -> usize
    requires { at + most_service ≤ length text.old }
    ensures position { result ≤ at + most_service }
    ensures text { take result text.new ≡ take at text.old ++ line (decimal i) c }
{
    let mut digits = [0u8; DIGITS];
    let k = io::decimal(i, &mut digits);
    put_line(text, at, &digits[..k], c)
}

pub(crate) fn put_services(text: &mut [u8], at: usize, plan: &[u16]) -> usize
    requires { at + length plan.now * most_service ≤ length text.old }
    ensures position { result ≤ at + length plan.now * most_service }
    ensures text { take result text.new ≡ take at text.old ++ service_lines 0 plan.now }
{
    let mut end = at;
    for (i, cabinet) in plan.iter().enumerate() {
        end = put_service(text, end, i as u64, u64::from(*cabinet));
    }
    end
}
