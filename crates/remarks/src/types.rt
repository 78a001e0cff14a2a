//! Texts for types and demands.

ghost use Rattle.std.specs.Prelude.{◌≡◌, ◌++◌, OnOk, string_bytes};
ghost use Rattle.remarks.specs.TypeWords.{demand_words, type_words};
ghost use Rattle.remarks.specs.Listings.{program_model};

use crate::line::add;
use crate::listing::ItemListing;
use crate::words::scalar_words;
use declarations::{Demand, ValueType};
use program::Side;
use source::Memory;
use std::alloc::Global;

/// Appends a type as it is written; an endpoint's has no state. Returns `Memory` if an allocation was refused.
pub(crate) fn add_type(
    alloc: Global,
    text: &mut String,
    listing: &ItemListing<'_>,
    ty: ValueType,
) -> Result<(), Memory>
    ensures { OnOk result (string_bytes text.new
        ≡ string_bytes text.old ++ type_words (program_model listing.now) ty) }
{
    match ty {
        ValueType::Scalar(scalar) => add(text, scalar_words(scalar)),
        ValueType::Pointer(item) => {
            listing.add_item(alloc, text, item)?;
            add(text, "* in ExHeap")
        }
        ValueType::Array(scalar) => {
            add(text, scalar_words(scalar))?;
            add(text, "[] in ExHeap")
        }
        ValueType::Endpoint(Side::Imp, item) => {
            listing.add_item(alloc, text, item)?;
            add(text, ".Imp")
        }
        ValueType::Endpoint(Side::Exp, item) => {
            listing.add_item(alloc, text, item)?;
            add(text, ".Exp")
        }
        ValueType::Missing => add(text, "no value"),
        ValueType::Unknown => add(text, "unknown"),
    }
}

/// Appends a demand in words. Returns `Memory` if an allocation was refused.
pub(crate) fn add_demand(
    alloc: Global,
    text: &mut String,
    listing: &ItemListing<'_>,
    demand: Demand,
) -> Result<(), Memory>
    ensures { OnOk result (string_bytes text.new
        ≡ string_bytes text.old ++ demand_words (program_model listing.now) demand) }
{
    match demand {
        Demand::OfType(ty) => add_type(alloc, text, listing, ty),
        Demand::Number => add(text, "a number"),
        Demand::Truth => add(text, "bool"),
        Demand::Scalar => add(text, "a number or bool"),
        Demand::Block => add(text, "a block"),
        Demand::NoBlock => add(text, "a value that is not a block"),
        Demand::Pointer => add(text, "a struct"),
        Demand::Array => add(text, "an array"),
        Demand::Fields => add(text, "a struct or an array"),
        Demand::Endpoint => add(text, "an endpoint"),
        Demand::EndOf(item) => {
            add(text, "an endpoint of ")?;
            listing.add_item(alloc, text, item)
        }
    }
}
