// Guest memory of any kind: two reads of one address may find different bytes.
ghost use Rattle.std.specs.Prelude.{◌≡◌, ℕ, ◌+◌, ◌<◌, ◌≤◌, length};
ghost use Rattle.vring.specs.Programs.{Acts, byte as one, pair, leaves, put_bytes};

// What a device may do with a guest's memory: read a byte or a number, write a number or a row of bytes.
// Each call also says that memory keeps its size: that follows from what it leaves, but each caller would have to show it for each address.
pub trait GuestMemory {
    ghost holds: { Self → ℕ };

    ghost acts: { Acts Self };

    // How many bytes it has.
    fn len(&self) -> usize
        ensures { result ≡ holds self.now };

    // The byte at an address.
    fn byte(&mut self, at: usize) -> u8
        requires { at < holds self.old }
        ensures value { result ≡ acts.reads self.old one at }
        ensures then { self.new ≡ acts.after self.old one at }
        ensures size { holds self.new ≡ holds self.old };

    // The number at an address.
    fn number(&mut self, at: usize) -> u16
        requires { at + 1 < holds self.old }
        ensures value { result ≡ acts.reads self.old pair at }
        ensures then { self.new ≡ acts.after self.old pair at }
        ensures size { holds self.new ≡ holds self.old };

    // Writes the number at an address.
    fn put_number(&mut self, at: usize, value: u16)
        requires { at + 1 < holds self.old }
        ensures then { self.new ≡ acts.wrote self.old pair at value }
        ensures size { holds self.new ≡ holds self.old };

    // Writes bytes from an address on.
    fn put_bytes(&mut self, at: usize, from: &[u8])
        requires { at + length from.now ≤ holds self.old }
        ensures then { self.new ≡ leaves acts (put_bytes at from.now) self.old }
        ensures size { holds self.new ≡ holds self.old };
}
