ghost use Rattle.std.specs.Prelude.{◌<◌, ◌↔◌, IsTrue};

/// Who makes an event: 0 to 7 are clients, 8 to 15 are crew threads.
#[derive(Clone, Copy, Debug, PartialEq, Eq, PartialOrd, Ord, Hash)]
pub struct Actor(pub u8);

impl Actor {
    pub fn is_client(&self) -> bool
        ensures { IsTrue result ↔ (self.now.0 < 8) }
    {
        self.0 < 8
    }
}
