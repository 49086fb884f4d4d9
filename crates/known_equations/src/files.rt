// Files of equations: those of examples/, without their comments, and one with what it is given.
use std::alloc::Global;

/// Two coupled Burgers equations with two noises.
pub const BURGERS_SYSTEM: &[u8] = br#"version = 1
scaling = [2, 1]
parameters = ["a", "b", "c"]

[[noise]]
name = "xi"
degree = "-3/2-k"

[[noise]]
name = "eta"
degree = "-3/2-k"

[[unknown]]
name = "u"
degree = "2"
regularity = "1/4"
right = "u*u'(0,1) + a*v*v'(0,1) + xi"

[[unknown]]
name = "v"
degree = "2"
regularity = "1/4"
right = "b*u*v'(0,1) + c*v*u'(0,1) + eta"
"#;

/// Two coupled KPZ equations with two noises.
pub const COUPLED_KPZ: &[u8] = br#"version = 1
scaling = [2, 1]
parameters = ["a", "b"]

[[noise]]
name = "xi"
degree = "-3/2 - k"

[[noise]]
name = "eta"
degree = "-3/2 - k"

[[unknown]]
name = "u"
degree = "2"
regularity = "1/4"
right = "1/2 * u'(0,1)^2 + a * v'(0,1)^2 + xi"

[[unknown]]
name = "v"
degree = "2"
regularity = "1/4"
right = "b * u'(0,1) * v'(0,1) + eta"
"#;

/// An equation with an empty right side.
pub const EMPTY_RIGHT_SIDE: &[u8] = br#"version = 1
scaling = [2, 1, 1]

[[noise]]
name = "xi"
degree = "-2-k"

[[unknown]]
name = "u"
degree = "2"
regularity = "-1/2"
right = ""
"#;

/// The KPZ equation.
pub const KPZ: &[u8] = br#"version = 1
scaling = [2, 1]

[[noise]]
name = "xi"
degree = "-3/2-k"

[[unknown]]
name = "u"
degree = "2"
regularity = "1/4"
right = "u'(0,1)^2+xi"
"#;

/// The KPZ equation with a noise that is symmetric in space.
pub const KPZ_SYMMETRIC: &[u8] = br#"version = 2
scaling = [2, 1]
reflect = [2]

[[noise]]
name = "xi"
degree = "-3/2-k"

[[unknown]]
name = "u"
degree = "2"
regularity = "1/4"
right = "u'(0,1)^2+xi"
"#;

/// The parabolic Anderson model in two dimensions.
pub const PAM_2D: &[u8] = br#"version = 1
scaling = [2, 1, 1]

[[noise]]
name = "xi"
degree = "-1-k"

[[unknown]]
name = "u"
degree = "2"
regularity = "1/2"
right = "u*xi"
"#;

/// The same with the square of the unknown before the noise.
pub const PAM_2D_QUADRATIC: &[u8] = br#"version = 1
scaling = [2, 1, 1]

[[noise]]
name = "xi"
degree = "-1-k"

[[unknown]]
name = "u"
degree = "2"
regularity = "1/2"
right = "u^2*xi"
"#;

/// The parabolic Anderson model in three dimensions.
pub const PAM_3D: &[u8] = br#"version = 1
scaling = [2, 1, 1, 1]

[[noise]]
name = "xi"
degree = "-3/2-k"

[[unknown]]
name = "u"
degree = "2"
regularity = "1/4"
right = "u*xi"
"#;

/// The dynamical Phi^4 equation in two dimensions.
pub const PHI4_2D: &[u8] = br#"version = 1
scaling = [2, 1, 1]

[[noise]]
name = "xi"
degree = "-2-k"

[[unknown]]
name = "u"
degree = "2"
regularity = "-1/2"
right = "-u^3+xi"
"#;

/// The same with two noises.
pub const PHI4_2D_TWO_NOISES: &[u8] = br#"version = 1
scaling = [2, 1, 1]

[[noise]]
name = "xi"
degree = "-2-k"

[[noise]]
name = "eta"
degree = "-2-k"

[[unknown]]
name = "u"
degree = "2"
regularity = "-1/2"
right = "-u^3+xi+eta"
"#;

/// The dynamical Phi^4 equation in three dimensions.
pub const PHI4_3D: &[u8] = br#"version = 1
scaling = [2, 1, 1, 1]

[[noise]]
name = "xi"
degree = "-5/2-k"

[[unknown]]
name = "u"
degree = "2"
regularity = "-3/4"
right = "-u^3+xi"
"#;

/// The same with a kernel of mean 0.
pub const PHI4_3D_MEAN_ZERO: &[u8] = br#"version = 2
scaling = [2, 1, 1, 1]

[[noise]]
name = "xi"
degree = "-5/2-k"

[[unknown]]
name = "u"
degree = "2"
regularity = "-3/4"
moments = 0
right = "-u^3+xi"
"#;

/// A generalised KPZ equation with polynomials of degrees 2 and 3.
pub const KPZ_GENERALISED: &[u8] = br#"version = 1
scaling = [2, 1]
parameters = ["a0", "a1", "a2", "b0", "b1", "b2", "b3"]

[[noise]]
name = "xi"
degree = "-3/2-k"

[[unknown]]
name = "u"
degree = "2"
regularity = "1/4"
right = "a0*u'(0,1)^2 + a1*u*u'(0,1)^2 + a2*u^2*u'(0,1)^2 + b0*xi + b1*u*xi + b2*u^2*xi + b3*u^3*xi"
"#;

/// Four coupled KPZ equations with four noises.
pub const KPZ_FOUR_COMPONENTS: &[u8] = br#"version = 1
scaling = [2, 1]

[[noise]]
name = "x1"
degree = "-3/2-k"

[[noise]]
name = "x2"
degree = "-3/2-k"

[[noise]]
name = "x3"
degree = "-3/2-k"

[[noise]]
name = "x4"
degree = "-3/2-k"

[[unknown]]
name = "u1"
degree = "2"
regularity = "1/4"
right = "2*u1'(0,1)^2 + 7*u1'(0,1)*u2'(0,1) + 5*u1'(0,1)*u3'(0,1) + 3*u1'(0,1)*u4'(0,1) + x1"

[[unknown]]
name = "u2"
degree = "2"
regularity = "1/4"
right = "5*u2'(0,1)*u1'(0,1) + 3*u2'(0,1)^2 + u2'(0,1)*u3'(0,1) + 6*u2'(0,1)*u4'(0,1) + x2"

[[unknown]]
name = "u3"
degree = "2"
regularity = "1/4"
right = "u3'(0,1)*u1'(0,1) + 6*u3'(0,1)*u2'(0,1) + 4*u3'(0,1)^2 + 2*u3'(0,1)*u4'(0,1) + x3"

[[unknown]]
name = "u4"
degree = "2"
regularity = "1/4"
right = "4*u4'(0,1)*u1'(0,1) + 2*u4'(0,1)*u2'(0,1) + 7*u4'(0,1)*u3'(0,1) + 5*u4'(0,1)^2 + x4"
"#;

/// A file with the noise `x` and the unknown `u`: the scaling, the degree of the noise, the degree of
/// the kernel, the regularity and the right side. `None` for want of memory.
pub fn file_of_one_unknown(
    alloc: Global,
    scaling: &str,
    noise: &str,
    kernel: &str,
    regularity: &str,
    right: &str,
) -> Option<Vec<u8>> {
    let text = format!(in alloc;
        "version = 1\nscaling = {scaling}\n[[noise]]\nname = \"x\"\ndegree = \"{noise}\"\n[[unknown]]\nname = \"u\"\ndegree = \"{kernel}\"\nregularity = \"{regularity}\"\nright = \"{right}\"\n"
    );
    Some(text.ok()?.into_bytes())
}
