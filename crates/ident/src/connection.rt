// The number of a connection: any but 0, which stands for none (document 01, "What a state holds").
ghost use Rattle.std.specs.Prelude.{◌≡◌, ◌≤◌, MatchOption};

#[derive(Clone, Copy)]
pub struct Connection {
    pub number: u64,
    ghost positive: { 1 ≤ number },
}

impl Connection {
    // None of 0.
    pub fn new(number: u64) -> Option<Connection>
        ensures { MatchOption result (number ≡ 0) (λ c. c.number ≡ number) }
    {
        if number == 0 {
            return None;
        }
        Some(Connection { number })
    }
}
