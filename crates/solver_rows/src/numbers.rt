// The numbers of a line, one after another.
use crate::stop::Stop;
use std::alloc::Global;

#[derive(Drop)]
pub struct Numbers {
    list: Vec<u64>,
    next: usize,
}

impl Numbers {
    /// The numbers of a line.
    pub fn of(alloc: Global, line: &str) -> Result<Numbers, Stop> {
        let mut list = Vec::new(alloc);
        for word in line.split_whitespace() {
            match word.parse::<u64>() {
                Ok(number) => list.push(number)?,
                Err(_) => return Err(Stop::Malformed),
            }
        }
        Ok(Numbers { list, next: 0 })
    }

    /// The next number.
    pub fn take(&mut self) -> Result<u64, Stop> {
        match self.list.get(self.next) {
            Some(number) => {
                self.next = self.next.saturating_add(1);
                Ok(*number)
            }
            None => Err(Stop::Malformed),
        }
    }

    /// The next number, which is a word.
    pub fn word(&mut self) -> Result<u32, Stop> {
        match u32::try_from(self.take()?) {
            Ok(word) => Ok(word),
            Err(_) => Err(Stop::Malformed),
        }
    }

    /// 14 words.
    pub fn words(&mut self) -> Result<[u32; 14], Stop> {
        let mut words = [0; 14];
        for i in 0..14 {
            words[i] = self.word()?;
        }
        Ok(words)
    }
}
