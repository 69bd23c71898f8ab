// Bytes that are put together.
use cola_a::read::ColaA;
use cola_b::read::ColaB;
use framed::framed::Framed;
use prefixed::prefixed::Prefixed;
use std::alloc::{AllocError, Global};

// How pieces of a telegram are put together in a framing.
pub trait Build {
    // Pieces one behind the other, as the body of a telegram.
    fn telegram(&self, heap: Global, pieces: &[&[u8]]) -> Result<Vec<u8>, AllocError>;

    // A number of 16 bits, as an item behind others: in two bytes, where the framing says nothing else.
    fn number(&self, heap: Global, n: u16) -> Result<Vec<u8>, AllocError> {
        n.to_be_bytes().to_vec(heap)
    }
}

impl Build for ColaA {
    fn telegram(&self, heap: Global, pieces: &[&[u8]]) -> Result<Vec<u8>, AllocError> {
        let body = pieces.concat(heap)?;
        [b"\x02".as_slice(), body.as_slice(), b"\x03".as_slice()].concat(heap)
    }

    fn number(&self, heap: Global, n: u16) -> Result<Vec<u8>, AllocError> {
        Ok(format!(in heap; " {n:X}")?.into_bytes())
    }
}

impl Build for ColaB {
    fn telegram(&self, heap: Global, pieces: &[&[u8]]) -> Result<Vec<u8>, AllocError> {
        let body = pieces.concat(heap)?;
        let length = body.len().to_be_bytes();
        let sum = body.iter().fold(0, |sum, byte| sum ^ *byte);
        let front = b"\x02\x02\x02\x02".as_slice();
        [front, &length[4..], body.as_slice(), &[sum]].concat(heap)
    }
}

impl Build for Framed<Prefixed> {
    fn telegram(&self, heap: Global, pieces: &[&[u8]]) -> Result<Vec<u8>, AllocError> {
        let body = pieces.concat(heap)?;
        let length = body.len().to_be_bytes();
        [&length[6..], body.as_slice()].concat(heap)
    }
}

// So many channels, of so many values each.
#[derive(Clone, Copy)]
pub struct Channels {
    pub count: u16,
    pub amount: u16,
}

impl Channels {
    // Their number, and then each: a front, its amount, and so many times one value.
    pub fn build<F: Build>(
        self,
        heap: Global,
        framing: &F,
        front: &[u8],
        value: &[u8],
    ) -> Result<Vec<u8>, AllocError> {
        let count = framing.number(heap, self.count)?;
        let amount = framing.number(heap, self.amount)?;
        let values = value.repeat(heap, usize::from(self.amount))?;
        let channel = [front, amount.as_slice(), values.as_slice()].concat(heap)?;
        let channels = channel.as_slice().repeat(heap, usize::from(self.count))?;
        [count.as_slice(), channels.as_slice()].concat(heap)
    }
}
