//! The claims of a job's chunks: each chunk is claimed once, whichever worker claims it.
ghost use Rattle.std.specs.Prelude.{◌≡◌, ◌<◌, ◌^◌};
ghost use Rattle.chunk_claims.specs.Workers.{MayClaim};

use crate::checks::check_eq;
use atomic_table::Seat;
use chunk_claims::{Claimant, Claims};
use std::test::Fail;
use std::thread::join;

/// The chunks that a worker claimed: how many, their sum, and that of their squares.
#[derive(Clone, Copy, PartialEq, Debug)]
struct Taken {
    count: u64,
    sum: u64,
    squares: u64,
}

/// Each of 100 chunks once. A chunk that is claimed twice in another's place would change one of
/// the sums.
const EACH_ONCE: Taken = Taken {
    count: 100,
    sum: 4950,
    squares: 328_350,
};

impl Taken {
    fn and(self, other: Taken) -> Taken {
        Taken {
            count: self.count.saturating_add(other.count),
            sum: self.sum.saturating_add(other.sum),
            squares: self.squares.saturating_add(other.squares),
        }
    }
}

/// Claims until no chunk is left, or so often.
fn claim_often(claims: &Claims, mut seat: Seat<(), Claimant>, tries: u32) -> Taken
    requires seat { MayClaim claims.now seat }
    requires few { claims.now.chunks < 2 ^ 32 }
{
    let mut taken = Taken {
        count: 0,
        sum: 0,
        squares: 0,
    };
    for _turn in 0..tries {
        let Some(chunk) = claims.claim(&mut seat) else {
            return taken;
        };
        let chunk = u64::from(chunk);
        taken = taken.and(Taken {
            count: 1,
            sum: chunk,
            squares: chunk.saturating_mul(chunk),
        });
    }
    taken
}

#[test]
fn one_worker_claims_all_chunks(rt: HostRuntime) -> Result<(), Fail> {
    let (claims, seat) = Claims::build(rt.alloc(), 100, 1)?;
    check_eq!(rt; claim_often(&claims, seat, 200), EACH_ONCE);
    Ok(())
}

#[test]
fn no_chunk_of_none_is_claimed(rt: HostRuntime) -> Result<(), Fail> {
    let (claims, mut seat) = Claims::build(rt.alloc(), 0, 1)?;
    let found = (claims.claim(&mut seat), claims.claimed(&mut seat));
    check_eq!(rt; found, (None, 1));
    Ok(())
}

#[test]
fn two_threads_claim_each_chunk_once(rt: HostRuntime) -> Result<(), Fail> {
    let (claims, mut mine) = Claims::build(rt.alloc(), 100, 2)?;
    let theirs = claims.split(&mut mine);
    let chunks = &claims;
    let (first, second) = join(
        &rt,
        move ||
            requires { MayClaim chunks.now mine × (chunks.now.chunks < 2 ^ 32) }
        { claim_often(chunks, mine, 200) },
        move ||
            requires { MayClaim chunks.now theirs × (chunks.now.chunks < 2 ^ 32) }
        { claim_often(chunks, theirs, 200) },
    );
    check_eq!(rt; first.and(second), EACH_ONCE);
    Ok(())
}
