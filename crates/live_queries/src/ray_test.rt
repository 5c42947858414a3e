//! A ray that is asked of many boxes: prepared if its numbers fit 32 bits, as those of most do.

ghost use Rattle.std.specs.Prelude.{◌≡◌};
ghost use Rattle.broad_index.specs.declared.query.Query.TheVariants.{Along};
ghost use Rattle.live_queries.specs.RayTest.{asked_by};

use broad_index::Query;
use fixed_box::FBox;
use prepared_query::{BoxTest, LineTest};
use ray_slabs::Ray;

// A ray, prepared or as it is.
#[derive(Drop)]
pub(crate) enum RayTest {
    Prepared(LineTest),
    Plain(Query),
}

impl RayTest {
    pub(crate) fn of(ray: &Ray) -> RayTest
        ensures { asked_by result ≡ Along ray.now }
    {
        let query = Query::Along(*ray);
        match LineTest::of(&query) {
            Some(line) => RayTest::Prepared(line),
            None => RayTest::Plain(query),
        }
    }
}

impl BoxTest for RayTest {
    ghost asks = { asked_by };

    #[inline]
    fn meets(&self, body: &FBox) -> bool {
        match self {
            RayTest::Prepared(line) => line.meets(body),
            RayTest::Plain(query) => query.meets(body),
        }
    }
}
