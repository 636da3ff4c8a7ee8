// What runs through one direction of a link: the demand of its streams, which is priced, and their frames, which take line too.
ghost use Rattle.std.specs.Prelude.{◌≡◌, ◌<◌};
ghost use Rattle.records.specs.Flows.{frames_in, load_of};

// What a frame takes of a link's capacity.
const FRAME: u64 = 2;

// The demand of some streams, and how many frames they have.
#[derive(Clone, Copy)]
pub struct Flow {
    pub demand: u32,
    pub frames: u32,
}

// How many frames a stream of so much demand has: one if that is above 0.
#[tactic(auto, unfolding(finite::specs::Below::only))]
pub fn frames_of(demand: u16) -> u16
    ensures { result ≡ frames_in demand }
{
    u16::from(0 < demand)
}

impl Flow {
    // What the streams take of a link's capacity: their demand, and what their frames take.
    pub fn load(self) -> u64
        ensures { result ≡ load_of self }
    {
        u64::from(self.demand) + FRAME * u64::from(self.frames)
    }
}
