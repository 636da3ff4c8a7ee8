// The entry point of the weighing call.
ghost use Rattle.std.specs.Prelude.{◌≡◌, ◌∷◌, []};
ghost use Rattle.subsets.specs.Figures.{weighing};

// The flag; the figure is written.
#[unsafe(no_mangle)]
pub extern "C" fn gz_weigh(
    best: u64,
    placed: u64,
    rest: u64,
    link: u64,
    answer: &mut [u64; 1],
) -> u64
    ensures flag { result ≡ (weighing best placed rest link).counted }
    ensures figure { answer.new ≡ (weighing best placed rest link).best ∷ [] }
{
    let w = subsets::weigh(best, placed, rest, link);
    *answer = [w.best];
    w.counted
}
