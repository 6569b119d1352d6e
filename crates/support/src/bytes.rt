// Bytes that are put one behind the other into a lent buffer. What does not fit is left out.
ghost use Rattle.std.specs.Prelude.{◌≤◌, length};

#[derive(Drop)]
pub struct Bytes<'a> {
    buffer: &'a mut [u8],
    end: usize,
    ghost within: { end ≤ length buffer.now },
}

impl<'a> Bytes<'a> {
    pub fn new(buffer: &'a mut [u8]) -> Bytes<'a> {
        Bytes { buffer, end: 0 }
    }

    pub fn len(&self) -> usize {
        self.end
    }

    pub fn push(&mut self, byte: u8) {
        if let Some(free) = self.buffer.get_mut(self.end) {
            *free = byte;
            self.end += 1;
        }
    }

    // Puts the bytes from `start` on again, so that they stand there `count` times.
    pub fn repeat(&mut self, start: usize, count: u32) {
        let end = self.end;
        for _ in 1..count {
            for i in start..end {
                if let Some(&byte) = self.buffer.get(i) {
                    self.push(byte);
                }
            }
        }
    }

    // What was put.
    pub fn into_slice(self) -> &'a [u8] {
        let Bytes { buffer, end } = self;
        &buffer[..end]
    }
}
