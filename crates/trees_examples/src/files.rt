// Files of examples/, which stand here without their comments.

pub const BURGERS_SYSTEM: &str = r#"version = 1
scaling = [2, 1]
parameters = ["a", "b", "c"]

[[noise]]
name = "xi"
degree = "-3/2-k"

[[noise]]
name = "eta"
degree = "-3/2-k"

[[unknown]]
name = "u"
degree = "2"
regularity = "1/4"
right = "u*u'(0,1) + a*v*v'(0,1) + xi"

[[unknown]]
name = "v"
degree = "2"
regularity = "1/4"
right = "b*u*v'(0,1) + c*v*u'(0,1) + eta"
"#;

pub const COUPLED_KPZ: &str = r#"version = 1
scaling = [2, 1]
parameters = ["a", "b"]

[[noise]]
name = "xi"
degree = "-3/2 - k"

[[noise]]
name = "eta"
degree = "-3/2 - k"

[[unknown]]
name = "u"
degree = "2"
regularity = "1/4"
right = "1/2 * u'(0,1)^2 + a * v'(0,1)^2 + xi"

[[unknown]]
name = "v"
degree = "2"
regularity = "1/4"
right = "b * u'(0,1) * v'(0,1) + eta"
"#;

pub const EMPTY_RIGHT_SIDE: &str = r#"version = 1
scaling = [2, 1, 1]

[[noise]]
name = "xi"
degree = "-2-k"

[[unknown]]
name = "u"
degree = "2"
regularity = "-1/2"
right = ""
"#;

pub const KPZ: &str = r#"version = 1
scaling = [2, 1]

[[noise]]
name = "xi"
degree = "-3/2-k"

[[unknown]]
name = "u"
degree = "2"
regularity = "1/4"
right = "u'(0,1)^2+xi"
"#;

pub const KPZ_SYMMETRIC: &str = r#"version = 2
scaling = [2, 1]
reflect = [2]

[[noise]]
name = "xi"
degree = "-3/2-k"

[[unknown]]
name = "u"
degree = "2"
regularity = "1/4"
right = "u'(0,1)^2+xi"
"#;

pub const PAM_2D: &str = r#"version = 1
scaling = [2, 1, 1]

[[noise]]
name = "xi"
degree = "-1-k"

[[unknown]]
name = "u"
degree = "2"
regularity = "1/2"
right = "u*xi"
"#;

pub const PAM_2D_QUADRATIC: &str = r#"version = 1
scaling = [2, 1, 1]

[[noise]]
name = "xi"
degree = "-1-k"

[[unknown]]
name = "u"
degree = "2"
regularity = "1/2"
right = "u^2*xi"
"#;

pub const PAM_3D: &str = r#"version = 1
scaling = [2, 1, 1, 1]

[[noise]]
name = "xi"
degree = "-3/2-k"

[[unknown]]
name = "u"
degree = "2"
regularity = "1/4"
right = "u*xi"
"#;

pub const PHI4_2D: &str = r#"version = 1
scaling = [2, 1, 1]

[[noise]]
name = "xi"
degree = "-2-k"

[[unknown]]
name = "u"
degree = "2"
regularity = "-1/2"
right = "-u^3+xi"
"#;

pub const PHI4_2D_TWO_NOISES: &str = r#"version = 1
scaling = [2, 1, 1]

[[noise]]
name = "xi"
degree = "-2-k"

[[noise]]
name = "eta"
degree = "-2-k"

[[unknown]]
name = "u"
degree = "2"
regularity = "-1/2"
right = "-u^3+xi+eta"
"#;

pub const PHI4_3D: &str = r#"version = 1
scaling = [2, 1, 1, 1]

[[noise]]
name = "xi"
degree = "-5/2-k"

[[unknown]]
name = "u"
degree = "2"
regularity = "-3/4"
right = "-u^3+xi"
"#;

pub const PHI4_3D_MEAN_ZERO: &str = r#"version = 2
scaling = [2, 1, 1, 1]

[[noise]]
name = "xi"
degree = "-5/2-k"

[[unknown]]
name = "u"
degree = "2"
regularity = "-3/4"
moments = 0
right = "-u^3+xi"
"#;

pub const KPZ_GENERALISED: &str = r#"version = 1
scaling = [2, 1]
parameters = ["a0", "a1", "a2", "b0", "b1", "b2", "b3"]

[[noise]]
name = "xi"
degree = "-3/2-k"

[[unknown]]
name = "u"
degree = "2"
regularity = "1/4"
right = "a0*u'(0,1)^2 + a1*u*u'(0,1)^2 + a2*u^2*u'(0,1)^2 + b0*xi + b1*u*xi + b2*u^2*xi + b3*u^3*xi"
"#;

pub const KPZ_FOUR_COMPONENTS: &str = r#"version = 1
scaling = [2, 1]

[[noise]]
name = "x1"
degree = "-3/2-k"

[[noise]]
name = "x2"
degree = "-3/2-k"

[[noise]]
name = "x3"
degree = "-3/2-k"

[[noise]]
name = "x4"
degree = "-3/2-k"

[[unknown]]
name = "u1"
degree = "2"
regularity = "1/4"
right = "2*u1'(0,1)^2 + 7*u1'(0,1)*u2'(0,1) + 5*u1'(0,1)*u3'(0,1) + 3*u1'(0,1)*u4'(0,1) + x1"

[[unknown]]
name = "u2"
degree = "2"
regularity = "1/4"
right = "5*u2'(0,1)*u1'(0,1) + 3*u2'(0,1)^2 + u2'(0,1)*u3'(0,1) + 6*u2'(0,1)*u4'(0,1) + x2"

[[unknown]]
name = "u3"
degree = "2"
regularity = "1/4"
right = "u3'(0,1)*u1'(0,1) + 6*u3'(0,1)*u2'(0,1) + 4*u3'(0,1)^2 + 2*u3'(0,1)*u4'(0,1) + x3"

[[unknown]]
name = "u4"
degree = "2"
regularity = "1/4"
right = "4*u4'(0,1)*u1'(0,1) + 2*u4'(0,1)*u2'(0,1) + 7*u4'(0,1)*u3'(0,1) + 5*u4'(0,1)^2 + x4"
"#;
