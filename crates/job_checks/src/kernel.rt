// A bit of a job's map, for callers that know it to be one.
ghost use Rattle.std.specs.Prelude.{◌≡◌, ◌<◌};
ghost use Rattle.job_checks.specs.Map.{stands};

// Whether a bit of a map stands. By its number: a map may have bits that are no field's.
#[tactic(auto, unfolding(crate::specs::Map::stands))]
pub fn stands_in(map: u64, bit: u64) -> bool
    requires { bit < 64 }
    ensures { result ≡ stands map bit }
{
    (map >> bit) % 2 == 1
}
