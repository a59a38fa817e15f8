//! Tests that pieces of a search run side by side and see each other's costs, and of what their gate observes.
use opgen_search::{Gate, OpenGate, least_set};
use std::hint::spin_loop;
use std::sync::atomic::{AtomicU64, Ordering};
use std::test::Fail;

/// What a piece said as it left: how often it arrived and left, and the least cost that it began with.
#[derive(Drop)]
struct Told {
    arrived: AtomicU64,
    left: AtomicU64,
    first: AtomicU64,
}

impl Told {
    fn new() -> Told {
        Told {
            arrived: AtomicU64::new(0),
            left: AtomicU64::new(0),
            first: AtomicU64::new(0),
        }
    }

    fn arrive(&self) {
        self.arrived.fetch_add(1, Ordering::SeqCst);
    }

    fn leave(&self, first: u64) {
        self.first.store(first, Ordering::SeqCst);
        self.left.fetch_add(1, Ordering::SeqCst);
    }

    // Whether the piece arrived once and left once, with this least cost as it began.
    fn is_once(&self, first: u64) -> bool {
        self.arrived.load(Ordering::SeqCst) == 1
            && self.left.load(Ordering::SeqCst) == 1
            && self.first.load(Ordering::SeqCst) == first
    }

    // Waits until the piece has left. False where it has not within so many turns.
    fn is_awaited(&self) -> bool {
        for _ in 0..100_000_000 {
            if self.left.load(Ordering::SeqCst) > 0 {
                return true;
            }
            spin_loop();
        }
        false
    }
}

/// Holds one of two pieces until the other has left.
#[derive(Drop)]
struct Hold {
    held: u32,
    pieces: [Told; 2],
    others: AtomicU64,
    ran_out: AtomicU64,
}

impl Hold {
    fn new(held: u32) -> Hold {
        Hold {
            held,
            pieces: [Told::new(), Told::new()],
            others: AtomicU64::new(0),
            ran_out: AtomicU64::new(0),
        }
    }

    // Whether both pieces came and went once, with these least costs as they began, and the hold did not run out.
    fn is_kept(&self, firsts: [u64; 2]) -> bool {
        self.pieces[0].is_once(firsts[0])
            && self.pieces[1].is_once(firsts[1])
            && self.others.load(Ordering::SeqCst) == 0
            && self.ran_out.load(Ordering::SeqCst) == 0
    }
}

impl Gate for Hold {
    fn arrive(&self, piece: u32) {
        let (told, other) = match piece {
            0 => (&self.pieces[0], &self.pieces[1]),
            _ => (&self.pieces[1], &self.pieces[0]),
        };
        told.arrive();
        if piece == self.held && !other.is_awaited() {
            self.ran_out.fetch_add(1, Ordering::SeqCst);
        }
    }

    fn leave(&self, piece: u32, first: u64) {
        match piece {
            0 => self.pieces[0].leave(first),
            1 => self.pieces[1].leave(first),
            _ => {
                self.others.fetch_add(1, Ordering::SeqCst);
            }
        }
    }
}

// A search on one thread, or one that never looks or never publishes, fails one of the two cases: the bound begins at
// 25, the cost of 3, 19, 45; piece 0 has the set 3, 45 of cost 16, and the least set of piece 1 is 5, 45 of cost 17.
#[test]
fn piece_0_begins_after_piece_1(rt: HostRuntime) -> Result<(), Fail> {
    let gate = Hold::new(0);
    let found = least_set(&rt, rt.alloc(), &[45], 4, 1, 2, &gate)?;
    assert_eq!(rt; found.as_slice(), [3, 45].as_slice());
    assert!(rt; gate.is_kept([17, 25]));
    Ok(())
}

#[test]
fn piece_1_begins_after_piece_0(rt: HostRuntime) -> Result<(), Fail> {
    let gate = Hold::new(1);
    let found = least_set(&rt, rt.alloc(), &[45], 4, 1, 2, &gate)?;
    assert_eq!(rt; found.as_slice(), [3, 45].as_slice());
    assert!(rt; gate.is_kept([25, 16]));
    Ok(())
}

/// Counts its calls, and adds up the numbers of the pieces.
#[derive(Drop)]
struct Count {
    arrived: AtomicU64,
    left: AtomicU64,
    numbers: AtomicU64,
}

impl Count {
    fn new() -> Count {
        Count {
            arrived: AtomicU64::new(0),
            left: AtomicU64::new(0),
            numbers: AtomicU64::new(0),
        }
    }

    fn is(&self, calls: u64, numbers: u64) -> bool {
        self.arrived.load(Ordering::SeqCst) == calls
            && self.left.load(Ordering::SeqCst) == calls
            && self.numbers.load(Ordering::SeqCst) == numbers
    }
}

impl Gate for Count {
    fn arrive(&self, _piece: u32) {
        self.arrived.fetch_add(1, Ordering::SeqCst);
    }

    fn leave(&self, piece: u32, _first: u64) {
        self.left.fetch_add(1, Ordering::SeqCst);
        self.numbers.fetch_add(piece as u64, Ordering::SeqCst);
    }
}

// Also a piece that has no set to try comes and goes.
#[test]
fn each_piece_comes_and_goes(rt: HostRuntime) -> Result<(), Fail> {
    for workers in [1_u32, 2, 3, 5, 8, 31, 32] {
        let workers = workers.clamp(1, 32) as u64;
        let gate = Count::new();
        let found = least_set(&rt, rt.alloc(), &[3], 4, 1, workers as u32, &gate)?;
        assert_eq!(rt; found.as_slice(), [3].as_slice());
        assert!(rt; gate.is(workers, workers * (workers - 1) / 2));
    }
    Ok(())
}

#[test]
fn no_target_and_no_piece(rt: HostRuntime) -> Result<(), Fail> {
    let gate = Count::new();
    assert!(rt; least_set(&rt, rt.alloc(), &[], 4, 2, 32, &gate)?.is_empty());
    assert!(rt; gate.is(0, 0));
    assert!(rt; least_set(&rt, rt.alloc(), &[], 4, 2, 32, &OpenGate)?.is_empty());
    Ok(())
}
