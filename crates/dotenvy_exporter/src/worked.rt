//! Laws on worked files: the definitions read of them what the tools were recorded to make of them.

ghost use Rattle.dotenvy_exporter.specs.Worked.{HaveDockerFiles, HaveExecFiles, HaveJsonFiles, HaveKubernetesFiles, HaveShellFiles, HaveSystemdByteFiles, HaveSystemdFiles};

/// Worked files: docker.
pub fn worked_docker()
    ensures { HaveDockerFiles }
{}

/// Worked files: kubectl.
pub fn worked_kubernetes()
    ensures { HaveKubernetesFiles }
{}

/// Worked files: systemd.
pub fn worked_systemd()
    ensures { HaveSystemdFiles }
{}

/// Worked files: systemd, by their bytes.
pub fn worked_systemd_bytes()
    ensures { HaveSystemdByteFiles }
{}

/// Worked files: shells.
pub fn worked_shell()
    ensures { HaveShellFiles }
{}

/// Worked files: shells that prepare a command.
pub fn worked_exec()
    ensures { HaveExecFiles }
{}

/// Worked files: readers of JSON.
pub fn worked_json()
    ensures { HaveJsonFiles }
{}
