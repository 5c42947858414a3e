//! A body's owner and groups, and which bodies they let collide.

ghost use Rattle.std.specs.Prelude.{◌≡◌};
ghost use Rattle.engine_tick.specs.Colliding.{may_collide};

/// Whose a body is, the groups that it is in, and the groups that it sees: a bit for each of 32 groups. Owner 0 is nobody.
#[derive(Clone, Copy, Debug, PartialEq, Eq)]
pub struct Kind {
    pub owner: u32,
    pub groups: u32,
    pub sees: u32,
}

impl Kind {
    /// Whether two bodies collide where they touch: each sees a group that the other is in, and nobody owns both.
    pub fn collides_with(&self, other: &Kind) -> bool
        ensures { result ≡ may_collide self.now other.now }
    {
        let seen = (self.groups & other.sees) != 0 && (other.groups & self.sees) != 0;
        let one_owner = self.owner == other.owner && self.owner != 0;
        seen && !one_owner
    }
}
