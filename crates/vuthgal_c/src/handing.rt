//! What a command wrote, in the memory of the caller.
ghost use Rattle.std.specs.Prelude.{◌≡◌, ◌≤◌, ℕ, List, length, min};
ghost use Rattle.byte_ports.specs.Counting.{AreFirst, most_counted};
ghost use Rattle.vuthgal_c.specs.Shows.{Holds};

use byte_ports::CountingSink;

/// The line that says that a call is out of memory.
pub const NO_MEMORY: &[u8] = b"memory\n";

/// Copies as many of `count` bytes as fit to `room`, and sets `told` to `count`. `first` has at least those that fit.
fn hand(first: &[u8], count: usize, room: &mut [u8], told: &mut usize)
    requires { min count (length room.old) ≤ length first.now }
    ensures { (bytes : List ℕ) → AreFirst first.now bytes → count ≡ min (length bytes) most_counted
        → Holds room.old room.new told.new bytes }
{
    let n = count.min(room.len());
    room[..n].copy_from_slice(&first[..n]);
    *told = count;
}

/// Copies these bytes to the caller's `room`, as many as fit, and sets `told` to their count.
pub fn hand_all(bytes: &[u8], room: &mut [u8], told: &mut usize)
    ensures { Holds room.old room.new told.new bytes.now }
{
    hand(bytes, bytes.len(), room, told);
}

/// Copies what was written to a sink to `room`, as many bytes as fit, and sets `told` to the count of all its bytes.
pub fn hand_over(sink: &CountingSink, room: &mut [u8], told: &mut usize)
    requires { min (length sink.now.written) (length room.old) ≤ length sink.now.kept }
    ensures { Holds room.old room.new told.new sink.now.written }
{
    hand(sink.kept(), sink.count(), room, told);
}
