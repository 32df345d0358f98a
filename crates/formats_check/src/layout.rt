use repo_layout::{names_of_paths, places_of_boots, places_of_things};

// They do nothing: their clauses say where things are.
#[test]
fn has_laws() {
    places_of_things();
    places_of_boots();
    names_of_paths();
}
