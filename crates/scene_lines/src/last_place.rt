//! The last application or client, which may still get lines.

ghost use Rattle.std.specs.Prelude.{◌≡◌, ◌++◌, ◌∷◌, [], IfOk};
ghost use Rattle.scene_lines.specs.Reading.{is_in_repeat, app_of, client_of, apps_with, clients_with};

use crate::reading::{OpenApp, OpenClient, Place};
use kernel_values::{App, AppList, Client, ClientList, NoMemory};

/// Whether a repeat is open.
pub fn is_in_repeat(place: &Place) -> bool
    ensures { result ≡ is_in_repeat place.now }
{
    matches!(place, Place::Repeat(..) | Place::ClientRepeat(..))
}

fn app_of(app: OpenApp) -> Result<App, NoMemory>
    ensures { IfOk result (λ made. made ≡ app_of app) }
{
    let OpenApp {
        name,
        manifest,
        threads,
        script,
        names,
        ..
    } = app;
    drop(names);
    let mut threads = threads;
    match threads.push(script) {
        Ok(()) => Ok(App {
            name,
            manifest,
            threads,
        }),
        Err(_) => {
            drop(name);
            drop(manifest);
            drop(threads);
            Err(NoMemory)
        }
    }
}

fn client_of(client: OpenClient) -> Client
    ensures { result ≡ client_of client }
{
    let OpenClient {
        name,
        script,
        names,
    } = client;
    drop(names);
    Client { name, script }
}

fn with_last_app(
    apps: AppList,
    clients: ClientList,
    app: OpenApp,
) -> Result<(AppList, ClientList), NoMemory>
    ensures { IfOk result (λ after. after ≡ (apps ++ app_of app ∷ [], clients)) }
{
    let mut apps = apps;
    let Ok(app) = app_of(app) else {
        drop(apps);
        drop(clients);
        return Err(NoMemory);
    };
    match apps.push(app) {
        Ok(()) => Ok((apps, clients)),
        Err(_) => {
            drop(apps);
            drop(clients);
            Err(NoMemory)
        }
    }
}

fn with_last_client(
    apps: AppList,
    clients: ClientList,
    client: OpenClient,
) -> Result<(AppList, ClientList), NoMemory>
    ensures { IfOk result (λ after. after ≡ (apps, clients ++ client_of client ∷ [])) }
{
    let mut clients = clients;
    match clients.push(client_of(client)) {
        Ok(()) => Ok((apps, clients)),
        Err(_) => {
            drop(apps);
            drop(clients);
            Err(NoMemory)
        }
    }
}

/// The last application or client has no later line.
pub fn settled(
    apps: AppList,
    clients: ClientList,
    last: Place,
) -> Result<(AppList, ClientList), NoMemory>
    ensures { IfOk result (λ after. after ≡ (apps_with apps last, clients_with clients last)) }
{
    match last {
        Place::App(app) => with_last_app(apps, clients, app),
        Place::Repeat(app, repeat) => {
            drop(repeat);
            with_last_app(apps, clients, app)
        }
        Place::Client(client) => with_last_client(apps, clients, client),
        Place::ClientRepeat(client, repeat) => {
            drop(repeat);
            with_last_client(apps, clients, client)
        }
        Place::Turns(_) | Place::Start | Place::Outside => {
            drop(last);
            Ok((apps, clients))
        }
    }
}
