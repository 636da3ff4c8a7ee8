// The entry point of the tidy copy.
ghost use Rattle.std.specs.Prelude.{◌≡◌, length};
ghost use Rattle.sheet.specs.Instance.{instance};
ghost use Rattle.tidy.specs.Copy.{tidied};
ghost use Rattle.tidy.specs.Answers.{number, tidy_answer, output_after};
ghost use Rattle.gazrieksne.specs.Copies.{written_answer};

use sheet::Refusal;

// The refusal's number, 0 for none; group and length are written.
fn tell(written: Result<usize, Refusal>, answer: &mut [u64; 2]) -> u64
    ensures refusal { result ≡ number written }
    ensures answer { answer.new ≡ written_answer written }
{
    match written {
        Ok(n) => {
            *answer = [0, n as u64];
            0
        }
        Err(refusal) => {
            *answer = [refusal.group(), 0];
            u64::from(refusal.number())
        }
    }
}

// The call that writes a tidy copy, with its answer as numbers.
#[unsafe(no_mangle)]
pub extern "C" fn gz_tidy(bytes: &[u8], output: &mut [u8], answer: &mut [u64; 2]) -> u64
    ensures refusal { result ≡ number (tidy_answer bytes.now (length output.old)) }
    ensures answer { answer.new ≡ written_answer (tidy_answer bytes.now (length output.old)) }
    ensures output { output.new ≡ output_after (tidied (instance bytes.now)) (tidy_answer bytes.now (length output.old)) output.old }
{
    let written = tidy::tidy(bytes, output);
    tell(written, answer)
}
