//! What holds of every catalogue.
ghost use Rattle.std.specs.Prelude.{◌≡◌, ℕ, List, Ok};
ghost use Rattle.tk_input.specs.Catalog.{catalog_from, catalog_of};

/// The names of a catalogue, which was read or made of names, make it again.
pub fn a_catalogue_is_of_its_names()
    ensures read { (bytes : List ℕ) (names : List (List ℕ)) → catalog_of bytes ≡ Ok names
        → catalog_from names ≡ Ok names }
    ensures made { (from names : List (List ℕ)) → catalog_from from ≡ Ok names → catalog_from names ≡ Ok names }
{}
