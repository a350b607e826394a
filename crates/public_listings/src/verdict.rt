// What a text is, from the text alone: no listing, the listing of an unsound state, or that of a sound one (document 02, request b: 11 and 12).
ghost use Rattle.public_listings.specs.Verdicts.{Sounds, VerdictOf};

use listed_form::{Listing, form_of};
use outcome::Refusal;

// Whether the state that a listing lists is sound.
fn sound_lines(l: Listing) -> bool
    ensures { Sounds l.entry.lines.text.now l.entry.head l.entry.lines.at result }
{
    public_requests::sizes_taken(l.head.limit, l.head.places)
        && listed_requests::each::each_fits(l.lines, l.head.limit, l.head.places)
        && listed_pairs::pairs_fit(l.lines)
        && listed_counts::light(l.lines)
}

// The listing that a text is, of a sound state.
pub fn sound_listing(text: &[u8]) -> Result<Listing, Refusal>
    ensures { VerdictOf text.now result }
{
    let Some(listing) = form_of(text) else {
        return Err(Refusal::NotAListing);
    };
    if !sound_lines(listing) {
        return Err(Refusal::ListingNotSound);
    }
    Ok(listing)
}
