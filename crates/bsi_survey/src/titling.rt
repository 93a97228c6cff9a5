//! Makes the titles of a header (`list_titles`).

ghost use Rattle.std.specs.Prelude.{◌≡◌, ◌<◌, length, map, IfOk};
ghost use Rattle.bsi_logical.specs.HeaderTitles.{number_in, titles_of};

use crate::NoMemory;
use crate::numbering::number_title;
use std::alloc::Global;

/// Makes a list of the titles of the fields of a header.
pub(crate) fn list_titles(alloc: Global, header: &[Vec<u8>]) -> Result<Vec<Vec<u8>>, NoMemory>
    ensures { IfOk result (λ titles. map (λ title. title.items) titles.items
        ≡ titles_of (map (λ field. field.items) header.now)) }
{
    let mut titles = Vec::new(alloc);
    'fields: for index in 0..header.len() {
        let number = number_in(header, index);
        let title = number_title(alloc, header[index].as_slice(), number)?;
        titles.push(title)?;
    }
    Ok(titles)
}

/// Returns which of the fields that are the same a field of a header is, from 1.
fn number_in(header: &[Vec<u8>], index: usize) -> usize
    requires { index < length header.now }
    ensures { result ≡ number_in (map (λ field. field.items) header.now) index }
{
    let mut number = 1;
    'fields: for other in 0..index {
        if header[other].as_slice() == header[index].as_slice() {
            number += 1;
        }
    }
    number
}
