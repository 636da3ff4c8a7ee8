// The entry point of the check.
ghost use Rattle.std.specs.Prelude.{◌≡◌, ◌∷◌, []};
ghost use Rattle.checker.specs.Check.{checked};
ghost use Rattle.checker.specs.Answers.{number, group, cost};

// The refusal's number, 0 for none; group and cost are written.
#[unsafe(no_mangle)]
pub extern "C" fn gz_check(bytes: &[u8], plan: &[u16], answer: &mut [u64; 2]) -> u64
    ensures refusal { result ≡ number (checked bytes.now plan.now) }
    ensures answer { answer.new ≡ group (checked bytes.now plan.now) ∷ cost (checked bytes.now plan.now) ∷ [] }
{
    match checker::check(bytes, plan) {
        Ok(cost) => {
            *answer = [0, cost];
            0
        }
        Err(refusal) => {
            *answer = [refusal.group(), 0];
            u64::from(refusal.number())
        }
    }
}
