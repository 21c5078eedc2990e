// The lines of shared data, played on the two images.
use crate::answer;
use script::Line;
use shared::Found;
use std::io;
use std::io::Write;

// The longest image that can be tried, longer than an image is.
const LONGEST_IMAGE: usize = 16384;

// What such a line asks for. The bytes of an image are read when the line is played; those of a record stand in the bytes that were lent to the
// reader.
#[derive(Clone, Copy)]
pub(crate) enum Asked<'a> {
    SetNetwork(Line<'a>),
    SetFactory(Line<'a>),
    Store { sector: u8, record: &'a [u8] },
    Fetch { sector: u8 },
    Answer { room: usize, sector: u8 },
}

// The network's copy of the shared data, or the factory image: the first of these bytes.
#[derive(Drop)]
struct Image {
    bytes: [u8; LONGEST_IMAGE],
    size: usize,
}

impl Image {
    // As many bytes as an image has, all 0.
    fn blank() -> Image {
        Image {
            bytes: [0; LONGEST_IMAGE],
            size: shared::IMAGE,
        }
    }

    // image, answered: it is these bytes from now on, and stays as it was where the line is bad.
    fn set<W: Write>(&mut self, to: &mut W, line: Line<'_>, number: u64) -> io::Result<()> {
        let Some(size) = script::bytes_from(line.text, line.at, &mut self.bytes) else {
            return answer::bad(to, number);
        };
        self.size = size;
        answer::image(to, size)
    }

    fn bytes(&self) -> &[u8] {
        &self.bytes[..script::within(self.size, &self.bytes)]
    }
}

// The two images.
#[derive(Drop)]
pub(crate) struct Images {
    network: Image,
    factory: Image,
}

impl Images {
    pub(crate) fn blank() -> Images {
        Images {
            network: Image::blank(),
            factory: Image::blank(),
        }
    }

    // store, answered.
    fn store<W: Write>(&mut self, to: &mut W, sector: u8, record: &[u8]) -> io::Result<()> {
        let size = script::within(self.network.size, &self.network.bytes);
        match shared::store(&mut self.network.bytes[..size], sector, record) {
            Ok(slot) => answer::stored(to, slot),
            Err(refusal) => answer::refused(to, refusal),
        }
    }

    // fetch, answered.
    fn fetch<W: Write>(&self, to: &mut W, sector: u8) -> io::Result<()> {
        let network = self.network.bytes();
        let factory = self.factory.bytes();
        // the record is asked for where there is one, since that looks for it anew
        match shared::holder(network, factory, sector) {
            Ok(Some(Found::Network(_))) => {
                answer::fetched(to, "network", shared::record(network, factory, sector))
            }
            Ok(Some(Found::Factory(_))) => {
                answer::fetched(to, "factory", shared::record(network, factory, sector))
            }
            Ok(None) => answer::none(to),
            Err(refusal) => answer::refused(to, refusal),
        }
    }

    // write-answer, answered.
    fn write_answer<W: Write>(&self, to: &mut W, room: usize, sector: u8) -> io::Result<()> {
        let mut out = [0; 1024];
        let n = script::within(room, &out);
        let out = &mut out[..n];
        let writing = shared::write_answer(self.network.bytes(), self.factory.bytes(), sector, out);
        answer::written(to, writing, out)
    }

    // Plays one of these lines.
    pub(crate) fn play<W: Write>(
        &mut self,
        to: &mut W,
        asked: Asked<'_>,
        number: u64,
    ) -> io::Result<()> {
        match asked {
            Asked::SetNetwork(line) => self.network.set(to, line, number),
            Asked::SetFactory(line) => self.factory.set(to, line, number),
            Asked::Store { sector, record } => self.store(to, sector, record),
            Asked::Fetch { sector } => self.fetch(to, sector),
            Asked::Answer { room, sector } => self.write_answer(to, room, sector),
        }
    }
}
