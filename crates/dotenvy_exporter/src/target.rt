//! The readers for which pairs can be written.

/// A reader of environment files.
///
/// ```
/// // of A=`x y`: A=x y for Docker, A="x y" for Systemd, export A='x y' for Sh, {"A":"x y"} for Json
/// write_for(alloc, Target::Docker, &environment, &mut writer)?;
/// ```
#[derive(Clone, Copy, Debug, PartialEq, Eq)]
pub enum Target {
    /// `docker run --env-file`.
    Docker,
    /// `kubectl create configmap --from-env-file`, and `secret`.
    Kubernetes,
    /// `EnvironmentFile=` of systemd.
    Systemd,
    /// A POSIX shell, by `.` or `eval`.
    Sh,
    /// A reader of JSON.
    Json,
    /// A POSIX shell that exports what it can, and hands the rest to `env` before a command, as `dotenvy_exec` does.
    Exec,
}
