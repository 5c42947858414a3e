//! Where a ray or a cast meets one live box.

ghost use Rattle.std.specs.Prelude.{◌≡◌};
ghost use Rattle.live_queries.specs.Face.{entry_face, contact_face};
ghost use Rattle.live_queries.specs.First.{IsHitAt};
ghost use Rattle.live_queries.specs.Queries.{entry_of, contact_of};

use crate::first_hit::FirstHit;
use crate::probe::Probe;
use box_cast::Cast;
use live_table::Live;
use ray_slabs::Ray;

/// Where a ray first meets a live box, and by which face, as a first hit tells it; `None` where it doesn't meet it. Groups don't
/// count. It takes no memory.
pub fn ray_meeting(ray: &Ray, live: &Live) -> Option<FirstHit>
    ensures { IsHitAt (entry_of ray.now) (entry_face ray.now) live.now result }
{
    meeting(ray, live)
}

/// Where on its way a box that is cast first meets a live box, and by which face; `None` where it doesn't meet it.
pub fn cast_meeting(cast: &Cast, live: &Live) -> Option<FirstHit>
    ensures { IsHitAt (contact_of cast.now) (contact_face cast.now) live.now result }
{
    meeting(cast, live)
}

fn meeting<P: Probe>(probe: &P, live: &Live) -> Option<FirstHit>
    ensures { IsHitAt (P.place probe.now) (P.face probe.now) live.now result }
{
    let place = probe.entry(&live.body)?;
    Some(FirstHit {
        handle: live.handle,
        place,
        face: probe.face(&place, &live.body),
    })
}
