//! What cuts packets into fragments.

ghost use Rattle.std.specs.Prelude.{◌≡◌, ◌+◌, ◌*◌, ◌%◌, ◌<◌, ◌≤◌, length, map, replicate, slice_index, take, drop};
ghost use Rattle.ppp_mp.specs.Fragmenter.{framed_from, numbers_after};
ghost use Rattle.ppp_mp.specs.Fragments.{fragments_of};
ghost use Rattle.ppp_mp.specs.Header.{classes_of, space_of};

use crate::fragment_out::FragmentOut;
use crate::header::{Header, space_of_form};
use crate::limits::{CLASSES, MOST_HELD, MOST_PACKET};
use std::marker::Model;

/// Cuts packets into fragments, and numbers those of each class. It is seen as its form and its numbers.
#[derive(Drop)]
pub struct Fragmenter {
    short: bool,
    numbers: [u32; CLASSES],
}

impl Model for Fragmenter {
    ghost use Rattle.ppp_mp.specs.Fragmenter.{Cutter, cutter_seen, IsFragmenter};

    ghost Value = { Cutter };

    ghost view = { cutter_seen };

    ghost invariant = { IsFragmenter };
}

impl Fragmenter {
    /// A fragmenter of the short form or of the long one, all of whose numbers are 0.
    pub fn new(short: bool) -> Fragmenter
        ensures { result ≡ record { short = short; numbers = replicate CLASSES 0 } }
    {
        Fragmenter {
            short,
            numbers: [0; CLASSES],
        }
    }

    /// Of each class the number of its next fragment.
    pub fn numbers(&self) -> [u32; CLASSES]
        ensures { result ≡ self.now.numbers }
    {
        self.numbers
    }

    /// Goes on with other numbers, each taken modulo the form's number space.
    pub fn set_numbers(&mut self, numbers: [u32; CLASSES])
        ensures { self.new ≡ record self.old {
          numbers = map (λ n. n % space_of self.old.short) numbers;
        } }
    {
        let mut reduced = numbers;
        reduce(&mut reduced, space_of_form(self.short));
        self.numbers = reduced;
    }

    /// Cuts a packet into fragments of `size` octets, the last of which has the rest, and gives each its header (RFC 1990
    /// section 3). The class is one of the form; the packet has 1 to 8,194 octets, and at most 256 times the size.
    pub fn cut(&mut self, class: u8, packet: &[u8], size: usize, out: &mut FragmentOut)
        requires class { class < classes_of self.old.short }
        requires some { 1 ≤ length packet.now }
        requires most { length packet.now ≤ MOST_PACKET }
        requires count { length packet.now ≤ MOST_HELD * size }
        ensures out { out.new ≡ framed_from self.old.short class
            (slice_index self.old.numbers class) (fragments_of size packet.now) }
        ensures numbers { self.new ≡ record self.old {
          numbers = numbers_after self.old class (length (fragments_of size packet.now));
        } }
    {
        let first = self.numbers[usize::from(class)];
        self.numbers[usize::from(class)] = cut_from(self.short, class, first, packet, size, out);
    }
}

/// Takes each number modulo the number space.
fn reduce(numbers: &mut [u32], space: u32)
    requires { 0 < space }
    ensures { numbers.new ≡ map (λ n. n % space) numbers.old }
{
    for n in numbers.iter_mut() {
        *n %= space;
    }
}

/// Cuts a packet into fragments with numbers from `first` on, and answers the number that comes then.
fn cut_from(
    short: bool,
    class: u8,
    first: u32,
    packet: &[u8],
    size: usize,
    out: &mut FragmentOut,
) -> u32
    requires class { class < classes_of short }
    requires first { first < space_of short }
    requires some { 1 ≤ length packet.now }
    requires most { length packet.now ≤ MOST_PACKET }
    requires count { length packet.now ≤ MOST_HELD * size }
    ensures out { out.new ≡ framed_from short class first (fragments_of size packet.now) }
    ensures number { result ≡ (first + length (fragments_of size packet.now)) % space_of short }
{
    out.clear();
    let space = space_of_form(short);
    let mut number = first;
    let mut at = 0;
    'pieces: while packet.len() - at > size {
        let header = Header {
            begin: at == 0,
            end: false,
            class,
            number,
        };
        out.push(short, header, piece(packet, at, size));
        number = (number + 1) % space;
        at += size;
    }
    let header = Header {
        begin: at == 0,
        end: true,
        class,
        number,
    };
    out.push(short, header, rest(packet, at));
    (number + 1) % space
}

/// The octets of one piece.
fn piece(packet: &[u8], at: usize, size: usize) -> &[u8]
    requires { at + size ≤ length packet.now }
    ensures { result.now ≡ take size (drop at packet.now) }
{
    &packet[at..at + size]
}

/// The octets from a place on.
fn rest(packet: &[u8], at: usize) -> &[u8]
    requires { at ≤ length packet.now }
    ensures { result.now ≡ drop at packet.now }
{
    packet.split_at(at).1
}
