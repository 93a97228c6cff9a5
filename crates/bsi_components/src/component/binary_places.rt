//! Implements `BinaryPlaces` for `Component`: reads the binary places of its digits, and makes a component of them.

use crate::NoMemory;
use crate::binary_places::BinaryPlaces;
use crate::building::{are_below, digit_of_place, make_bitmaps, with_places};
use crate::component::Component;
use crate::encoding::Encoding;
use crate::places::stored_places;
use crate::reads::Reads;
use bsi_bits::{Bitmaps, Bits};
use bsi_kernels::spans::assign;
use std::marker::PhantomData;

impl<M: Reads> BinaryPlaces for Component<M> {
    fn place_into(&self, k: usize, out: &mut Bits) {
        let places = self.places();
        if places.is_empty() {
            self.eq_into(digit_of_place(self.base(), k), out);
        } else {
            out.copy_from(&places[k]);
        }
    }

    fn place_word(&self, k: usize, at: usize) -> u64 {
        let places = self.places();
        if !places.is_empty() {
            return places[k].words()[at];
        }
        let mut span = [0];
        self.eq_span_into(digit_of_place(self.base(), k), at, &mut span);
        span[0]
    }

    fn place_span(&self, k: usize, at: usize, span: &mut [u64]) {
        let places = self.places();
        if places.is_empty() {
            self.eq_span_into(digit_of_place(self.base(), k), at, span);
        } else {
            assign(&places[k], at, span);
        }
    }

    fn from_places(base: u32, places: Vec<Bits>) -> Result<Option<Self>, NoMemory> {
        let alloc = *places.allocator();
        if !are_below(alloc, &places, base)? {
            return Ok(None);
        }
        let stored = stored_places(base);
        let made = make_bitmaps::<M>(alloc, &places, base, stored)?;
        let bitmaps = Bitmaps::from_vectors(with_places(made, places, stored));
        Ok(Some(Component {
            base,
            bitmaps,
            marking: PhantomData,
        }))
    }
}
