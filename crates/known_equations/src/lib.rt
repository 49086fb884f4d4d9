//! For tests: files of equations that people know, equations with their normal rules, and trees of a
//! pool by their texts.
#![tactic(auto)]

mod files;
mod pools;
mod rules;

pub use files::{
    BURGERS_SYSTEM, COUPLED_KPZ, EMPTY_RIGHT_SIDE, KPZ, KPZ_FOUR_COMPONENTS, KPZ_GENERALISED,
    KPZ_SYMMETRIC, PAM_2D, PAM_2D_QUADRATIC, PAM_3D, PHI4_2D, PHI4_2D_TWO_NOISES, PHI4_3D,
    PHI4_3D_MEAN_ZERO, file_of_one_unknown,
};
pub use pools::{all_interned, interned, is_fit, put_tree};
pub use rules::{SubcriticalEquation, subcritical_equation};
