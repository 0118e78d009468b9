//! The laws of the layers, in one place.
ghost use Rattle.flatc_tool.specs.LayerLaws.{LayerLaws};

use fb_conform::{
    back_holds, carried_fits, carried_holds, carries_on, conforms_on, kept_unless_moved,
    means_carried, names_carry,
};
use fb_declare::{refused_text_has_no_layout, text_has_one_layout};
use fb_json::{all_that_is_meant, meant_is_whole, only_what_is_meant};
use fb_value::{
    fits_where_held, held_is_message, message_is_whole, one_least_fault, one_message_in_front,
    one_value, value_or_fault,
};

/// What the layers promise of all texts, values and bytes. It does nothing when it runs.
#[inline(always)]
pub(crate) fn layer_laws()
    ensures laws { LayerLaws }
{
    text_has_one_layout();
    refused_text_has_no_layout();
    one_value();
    value_or_fault();
    one_least_fault();
    fits_where_held();
    one_message_in_front();
    message_is_whole();
    held_is_message();
    only_what_is_meant();
    all_that_is_meant();
    meant_is_whole();
    carried_holds();
    carried_fits();
    back_holds();
    conforms_on();
    carries_on();
    kept_unless_moved();
    names_carry();
    means_carried();
}
