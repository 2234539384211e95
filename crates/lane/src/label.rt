// A symbol that is written for a label, and the buffer that it stands in.
ghost use Rattle.lane.specs.Labels.{Begins, Adds, Seals};

use commands::error::Failure;
use std::alloc::Global;
use symbols::fault::{AddFault, WriterFault};
use symbols::state::Open;
use symbols::writer::{add, begin, seal};

// A symbol that is begun and not yet sealed, and its buffer.
#[derive(Drop)]
pub struct OpenSymbol {
    state: Open,
    buffer: Vec<u8>,
}

impl OpenSymbol {
    // Begins a symbol over a buffer of `room` bytes.
    pub fn begin(heap: Global, room: usize) -> Result<OpenSymbol, Failure<WriterFault>>
        ensures { Begins result room }
    {
        let mut buffer = vec![in heap; 0; room]?;
        let state = begin(buffer.as_mut_slice()).map_err(Failure::Refused)?;
        Ok(OpenSymbol { state, buffer })
    }

    // Adds an element, or gives the symbol back as it was.
    pub fn add(self, element: &[u8]) -> Result<OpenSymbol, (OpenSymbol, AddFault)>
        ensures { Adds result self element.now }
    {
        let OpenSymbol { state, mut buffer } = self;
        // Kept: a match, since the buffer goes back with the symbol either way.
        match add(state, buffer.as_mut_slice(), element) {
            Ok(state) => Ok(OpenSymbol { state, buffer }),
            Err((state, fault)) => Err((OpenSymbol { state, buffer }, fault)),
        }
    }

    // Seals the symbol: all its values; or gives it back as it was.
    pub fn seal(self) -> Result<Vec<u8>, (OpenSymbol, WriterFault)>
        ensures { Seals result self }
    {
        let OpenSymbol { state, mut buffer } = self;
        // Kept: a match, since the buffer goes back with the symbol, or is what is answered.
        match seal(state, buffer.as_mut_slice()) {
            Ok(n) => {
                buffer.truncate(n);
                Ok(buffer)
            }
            Err((state, fault)) => Err((OpenSymbol { state, buffer }, fault)),
        }
    }
}
