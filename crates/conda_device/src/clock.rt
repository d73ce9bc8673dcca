ghost use Rattle.std.specs.Prelude.{◌≡◌, IfSome, Option, ℕ};

/// The time of day.
pub trait Clock {
    /// The number that it gives next, where it tells it.
    ghost next: { Self → Option ℕ };

    /// Seconds since 1970 in UTC. It can't fail.
    fn now(&mut self) -> u64
        ensures { IfSome (next self.old) (λ seconds. result ≡ seconds) };
}
