//! Laws of the layout, which its definitions meet. Source: this project's own.

ghost use Rattle.cell_layout.specs.Repartition.{StandsPlaced};
ghost use Rattle.cell_layout.specs.Valid.{LaidIsValid, GrownIsValid};

use column_classes::laws::classes_of_rows_are_good;
use order_codes::laws::{places_decode_to_their_values, values_are_found_where_they_were};

/// Rows laid out anew are a valid image of these rows in another order.
pub fn rows_laid_out_anew_are_kept()
    ensures { LaidIsValid }
{
    classes_of_rows_are_good();
    places_decode_to_their_values();
}

/// A grown image is a valid image of its rows and the further ones in another order.
pub fn rows_added_are_kept()
    ensures { GrownIsValid }
{
    places_decode_to_their_values();
}

/// The rows of a valid image, placed by its classes, stand as they stood.
pub fn standing_rows_keep_their_places()
    ensures { StandsPlaced }
{
    values_are_found_where_they_were();
}
