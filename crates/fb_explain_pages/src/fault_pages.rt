//! A paragraph on each number of a fault, as docs/FAULTS.md has it.
ghost use Rattle.std.specs.Prelude.{◌≡◌, ◌<◌, ◌≤◌, ◌+◌, ◌↔◌, IsTrue, IfSome, IsSome, chars, length, ◌∷◌, ◌++◌, []};
ghost use Rattle.fb_explain_pages.specs.Lines.{IsPage};
ghost use Rattle.fb_explain_pages.specs.Titles.{are_pages, first_number, is_number_of_fault};

mod buffers;
mod jobs;
mod json_texts;
mod schemas;

/// What a number of a fault means, with an example, and what to do; `None` where no fault has the number.
///
/// The page begins with its number.
pub fn fault_page(number: u8) -> Option<&'static str>
    ensures plain { IfSome result (λ page. IsPage (chars page.now ++ 10 ∷ [])) }
    ensures titled { IfSome result (λ page. first_number page.now ≡ number) }
    ensures listed { IsSome result ↔ IsTrue (is_number_of_fault number) }
{
    let (first, pages) = match number {
        1..=7 => (1, schemas::OF_TEXTS),
        10..=23 => (10, schemas::OF_DECLARATIONS),
        30..=32 => (30, schemas::OF_SIZES),
        40..=41 => (40, buffers::OF_BUILDING),
        50..=60 => (50, buffers::OF_READING),
        62..=64 => (62, buffers::OF_LIMITS),
        70..=82 => (70, json_texts::OF_JSON),
        84 => (84, json_texts::OF_PRINTING),
        90..=103 => (90, jobs::OF_COMPARISONS),
        110..=114 => (110, jobs::OF_FILES),
        _ => return None,
    };
    Some(page_in(pages, first, number))
}

/// The page of a number, among the pages of the numbers from `first` on.
fn page_in(pages: &'static [&'static str], first: u8, number: u8) -> &'static str
    requires pages { IsTrue (are_pages first pages.now) }
    requires first { first ≤ number }
    requires last { number < first + length pages.now }
    ensures plain { IsPage (chars result.now ++ 10 ∷ []) }
    ensures titled { first_number result.now ≡ number }
{
    pages[usize::from(number - first)]
}
