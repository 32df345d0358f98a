//! What others may rest on, beside the contracts of the steps.
