// Equation files and their reports.

/// The parabolic Anderson model in two dimensions.
pub const PAM: &str =
    "version = 1\nscaling = [2, 1, 1]\n[[noise]]\nname = \"xi\"\ndegree = \"-1-k\"\n[[unknown]]\nname = \"u\"\ndegree = \"2\"\nregularity = \"1/2\"\nright = \"u*xi\"\n";

pub const PAM_REPORT: &str =
    "report 1\nrule u 4 6\n  1\n  xi\n  u\n  u'(0,0,1)\n  u'(0,1,0)\n  xi*u\ntrees 4\ntree 1 [xi]\ndegree -1-k\nsymmetry 1\nconstant 0\ndifferential u u\ntree 2 [xi*u[xi]]\ndegree -2*k\nsymmetry 1\nconstant -E[xi*u[xi]]\ndifferential u u\ntree 3 [X(0,0,1)*xi]\ndegree -k\nsymmetry 1\nconstant 0\ndifferential u u'(0,0,1)\ntree 4 [X(0,1,0)*xi]\ndegree -k\nsymmetry 1\nconstant 0\ndifferential u u'(0,1,0)\nequation u\n  (u*xi)/1\n  +(-E[xi*u[xi]])*(u)/1\n";

/// The report where the constant of the second tree is held to be 0.
pub const PAM_WITHOUT_ITS_CONSTANT: &str =
    "report 1\nrule u 4 6\n  1\n  xi\n  u\n  u'(0,0,1)\n  u'(0,1,0)\n  xi*u\ntrees 4\ntree 1 [xi]\ndegree -1-k\nsymmetry 1\nconstant 0\ndifferential u u\ntree 2 [xi*u[xi]]\ndegree -2*k\nsymmetry 1\nconstant 0\ndifferential u u\ntree 3 [X(0,0,1)*xi]\ndegree -k\nsymmetry 1\nconstant 0\ndifferential u u'(0,0,1)\ntree 4 [X(0,1,0)*xi]\ndegree -k\nsymmetry 1\nconstant 0\ndifferential u u'(0,1,0)\nequation u\n  (u*xi)/1\n";

pub const PAM_CONTEXT: &str = "context 2|scaling 2,1,1|reflect -|noise xi -1-k xi|kernel u 2 -";

pub const PAM_OLD_CONTEXT: &str = "scaling 2,1,1|noise xi -1-k xi|kernel u 2";

/// The same types, and another right side.
pub const PAM_QUADRATIC: &str =
    "version = 1\nscaling = [2, 1, 1]\n[[noise]]\nname = \"xi\"\ndegree = \"-1-k\"\n[[unknown]]\nname = \"u\"\ndegree = \"2\"\nregularity = \"1/2\"\nright = \"u^2*xi\"\n";

/// The same names and the same scaling, and a rougher noise: Phi^4 in two dimensions.
pub const PHI4_2D: &str =
    "version = 1\nscaling = [2, 1, 1]\n[[noise]]\nname = \"xi\"\ndegree = \"-2-k\"\n[[unknown]]\nname = \"u\"\ndegree = \"2\"\nregularity = \"-1/2\"\nright = \"-u^3+xi\"\n";

pub const PHI4_2D_CONTEXT: &str = "context 2|scaling 2,1,1|reflect -|noise xi -2-k xi|kernel u 2 -";

/// Nothing on the right side.
pub const EMPTY: &str =
    "version = 1\nscaling = [2, 1, 1]\n[[noise]]\nname = \"xi\"\ndegree = \"-2-k\"\n[[unknown]]\nname = \"u\"\ndegree = \"2\"\nregularity = \"-1/2\"\nright = \"\"\n";

pub const KPZ: &str =
    "version = 1\nscaling = [2, 1]\n[[noise]]\nname = \"xi\"\ndegree = \"-3/2-k\"\n[[unknown]]\nname = \"u\"\ndegree = \"2\"\nregularity = \"1/4\"\nright = \"u'(0,1)^2+xi\"\n";

/// The same with the reflection of space declared.
pub const KPZ_SYMMETRIC: &str =
    "version = 2\nscaling = [2, 1]\nreflect = [2]\n[[noise]]\nname = \"xi\"\ndegree = \"-3/2-k\"\n[[unknown]]\nname = \"u\"\ndegree = \"2\"\nregularity = \"1/4\"\nright = \"u'(0,1)^2+xi\"\n";

pub const KPZ_CONTEXT: &str = "context 2|scaling 2,1|reflect -|noise xi -3/2-k xi|kernel u 2 -";

/// A text that the TOML reader refuses.
pub const NO_TOML: &str = "scalin";
