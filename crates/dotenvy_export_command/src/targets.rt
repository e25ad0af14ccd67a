//! The names of the targets.

ghost use Rattle.std.specs.Prelude.{◌≡◌};
ghost use Rattle.dotenvy_export_command.specs.Names.{target_name, target_named};

use dotenvy_exporter::target::Target;

/// The target that has this name.
pub(crate) fn target_named(name: &str) -> Option<Target>
    ensures { result ≡ target_named name.now }
{
    match name {
        "docker" => Some(Target::Docker),
        "kubernetes" => Some(Target::Kubernetes),
        "systemd" => Some(Target::Systemd),
        "sh" => Some(Target::Sh),
        "json" => Some(Target::Json),
        "exec" => Some(Target::Exec),
        _ => None,
    }
}

/// The name of a target.
pub(crate) fn target_name(target: Target) -> &'static str
    ensures { result.now ≡ target_name target }
{
    match target {
        Target::Docker => "docker",
        Target::Kubernetes => "kubernetes",
        Target::Systemd => "systemd",
        Target::Sh => "sh",
        Target::Json => "json",
        Target::Exec => "exec",
    }
}
