ghost use Rattle.std.specs.Prelude.{◌≡◌, ◌<◌, ◌≤◌, ◌^◌, ◌+◌, ◌-◌, [], ◌++◌, ℕ, min, length, take, drop, IfOk};
ghost use Rattle.rtrb.specs.Ring.{sent, received, known_items, producer_capacity};
ghost use Rattle.tk_wire.specs.Ring.{IsRing};
ghost use Rattle.tk_wire.specs.Pipe.{free, with_more, without, passing};

use rtrb::{Consumer, Producer, RingBuffer};
use std::alloc::Global;
use std::marker::Model;
use tk_base::NoMemory;

/// How many bytes go from pipe to pipe at once.
const CHUNK: usize = 512;

/// A queue of bytes of a fixed room. Contracts also see the bytes that have left it.
#[derive(Drop)]
pub struct Pipe {
    producer: Producer<u8>,
    consumer: Consumer<u8>,
}

impl Model for Pipe {
    ghost use Rattle.tk_wire.specs.Pipe.{Queue};

    ghost Value = { Queue };

    ghost use Rattle.tk_wire.specs.PipeInside.{queue_of, IsPipe};

    ghost view = { queue_of };

    ghost invariant = { IsPipe };
}

// Pushes bytes for which there is room, and lets the reader see them.
fn push(producer: &mut Producer<u8>, consumer: &mut Consumer<u8>, bytes: &[u8])
    requires ring { IsRing producer.old consumer.old }
    requires room { length (known_items consumer.old) + length bytes.now ≤ producer_capacity producer.old }
    ensures ring { IsRing producer.new consumer.new }
    ensures past { received consumer.new ≡ received consumer.old }
    ensures bytes { known_items consumer.new ≡ known_items consumer.old ++ bytes.now }
    ensures room { producer_capacity producer.new ≡ producer_capacity producer.old }
{
    producer.slots_beside(consumer);
    let Ok(()) = producer.push_entire_slice(bytes) else {
        unreachable!();
    };
    consumer.slots_beside(producer);
}

// Pops as many bytes as the slice is long, where so many are there.
fn pop(producer: &mut Producer<u8>, consumer: &mut Consumer<u8>, into: &mut [u8])
    requires ring { IsRing producer.old consumer.old }
    requires there { length into.old ≤ length (known_items consumer.old) }
    ensures ring { IsRing producer.new consumer.new }
    ensures past { received consumer.new ≡ received consumer.old ++ into.new }
    ensures bytes { known_items consumer.old ≡ into.new ++ known_items consumer.new }
    ensures room { producer_capacity producer.new ≡ producer_capacity producer.old }
{
    let Ok(()) = consumer.pop_entire_slice(into) else {
        unreachable!();
    };
    consumer.slots_beside(producer);
}

impl Pipe {
    /// A queue with room for so many bytes, 1 to 2^32, which are taken at once.
    pub fn new(alloc: Global, room: usize) -> Result<Pipe, NoMemory>
        requires { (0 < room) × (room ≤ 2 ^ 32) }
        ensures { IfOk result (λ p. p ≡ record { past = []; bytes = []; room = room }) }
    {
        let (producer, consumer) = RingBuffer::new(alloc, room)?;
        Ok(Pipe { producer, consumer })
    }

    /// How many bytes are in it.
    pub fn len(&self) -> usize
        ensures { result ≡ length self.now.bytes }
    {
        self.consumer.cached_slots()
    }

    /// How many more bytes fit.
    pub fn free(&self) -> usize
        ensures value { result ≡ free self.now }
        ensures within { length self.now.bytes ≤ self.now.room }
    {
        self.producer.capacity() - self.consumer.cached_slots()
    }

    /// Appends as many of the bytes as fit, and answers how many.
    pub fn put(&mut self, bytes: &[u8]) -> usize
        ensures value { result ≡ min (length bytes.now) (free self.old) }
        ensures put { self.new ≡ with_more (take result bytes.now) self.old }
    {
        let count = bytes.len().min(self.free());
        push(&mut self.producer, &mut self.consumer, &bytes[..count]);
        count
    }

    /// Moves bytes to the front of the slice, as many as there are and as fit, and answers how many.
    pub fn get(&mut self, into: &mut [u8]) -> usize
        ensures value { result ≡ min (length into.old) (length self.old.bytes) }
        ensures bytes { take result into.new ≡ take result self.old.bytes }
        ensures got { self.new ≡ without result self.old }
    {
        let count = into.len().min(self.len());
        pop(&mut self.producer, &mut self.consumer, &mut into[..count]);
        count
    }

    /// Moves bytes from the front to the end of another, as many as there are and as fit, up to `most`.
    pub fn move_to(&mut self, to: &mut Pipe, most: usize) -> usize
        ensures value { result ≡ passing most self.old to.old }
        ensures from { self.new ≡ without result self.old }
        ensures to { to.new ≡ with_more (take result self.old.bytes) to.old }
    {
        let count = most.min(self.len()).min(to.free());
        let mut chunk = [0; CHUNK];
        let mut moved = 0;
        while moved < count {
            let size = CHUNK.min(count - moved);
            self.get(&mut chunk[..size]);
            to.put(&chunk[..size]);
            moved += size;
        }
        count
    }
}
